// Cases of the house rules. What is expected comes from a second reading of the rules, made apart from the code.
use terms::Mode;

// Kinds by their numbers, since those that no rule knows are cases too: kind, argument, working value, mode and value met; then whether the kind is known, and what start, take and give make.
pub type Case = ((u8, u64, u64, Mode, u64), (bool, u64, u64, u64));

pub const CHARGES: [Case; 48] = [
    ((0, 7, 11, Mode::Read, 5), (false, 0, 0, 5)),
    (
        (0, u64::MAX, u64::MAX, Mode::Read, u64::MAX),
        (false, 0, 0, u64::MAX),
    ),
    ((0, 0, 0, Mode::Write, 0), (false, 0, 0, 0)),
    ((1, 7, 11, Mode::Read, 5), (true, 7, 11, 12)),
    (
        (1, u64::MAX, u64::MAX, Mode::Read, u64::MAX),
        (true, u64::MAX, u64::MAX, u64::MAX),
    ),
    ((1, 0, 0, Mode::Write, 0), (true, 0, 0, 0)),
    ((2, 7, 11, Mode::Read, 5), (true, 7, 11, 0)),
    (
        (2, u64::MAX, u64::MAX, Mode::Read, u64::MAX),
        (true, u64::MAX, u64::MAX, 0),
    ),
    ((2, 0, 0, Mode::Write, 0), (true, 0, 0, 0)),
    ((3, 7, 11, Mode::Read, 5), (true, 0, 16, 1)),
    (
        (3, u64::MAX, u64::MAX, Mode::Read, u64::MAX),
        (true, 0, u64::MAX, 683212743470724133),
    ),
    ((3, 0, 0, Mode::Write, 0), (true, 0, 0, 0)),
    ((4, 7, 11, Mode::Read, 5), (false, 0, 0, 5)),
    (
        (4, u64::MAX, u64::MAX, Mode::Read, u64::MAX),
        (false, 0, 0, u64::MAX),
    ),
    ((4, 0, 0, Mode::Write, 0), (false, 0, 0, 0)),
    ((255, 7, 11, Mode::Read, 5), (false, 0, 0, 5)),
    (
        (255, u64::MAX, u64::MAX, Mode::Read, u64::MAX),
        (false, 0, 0, u64::MAX),
    ),
    ((255, 0, 0, Mode::Write, 0), (false, 0, 0, 0)),
    (
        (1, 1, 0, Mode::Read, 18446744073709551614),
        (true, 1, 0, u64::MAX),
    ),
    (
        (1, 2, 2, Mode::Write, 18446744073709551614),
        (true, 2, 2, u64::MAX),
    ),
    (
        (1, u64::MAX, u64::MAX, Mode::Read, 0),
        (true, u64::MAX, u64::MAX, u64::MAX),
    ),
    ((2, 5, 5, Mode::Write, 5), (true, 5, 5, 0)),
    ((2, 6, 6, Mode::Write, 5), (true, 6, 6, 0)),
    ((2, 4, 4, Mode::Read, 5), (true, 4, 4, 1)),
    (
        (2, u64::MAX, u64::MAX, Mode::Read, 1),
        (true, u64::MAX, u64::MAX, 0),
    ),
    ((2, 0, 0, Mode::Read, u64::MAX), (true, 0, 0, u64::MAX)),
    ((3, 0, 280, Mode::Read, 80), (true, 0, 360, 70)),
    ((3, 1, 280, Mode::Read, 80), (true, 0, 360, 40)),
    ((3, 9, 280, Mode::Read, 80), (true, 0, 360, 40)),
    ((3, 10, 280, Mode::Read, 80), (true, 0, 360, 40)),
    ((3, 11, 280, Mode::Read, 80), (true, 0, 360, 28)),
    ((3, 20, 280, Mode::Read, 80), (true, 0, 360, 28)),
    ((3, 21, 280, Mode::Read, 80), (true, 0, 360, 20)),
    ((3, 30, 280, Mode::Read, 80), (true, 0, 360, 20)),
    ((3, 31, 280, Mode::Read, 80), (true, 0, 360, 15)),
    ((3, 40, 280, Mode::Read, 80), (true, 0, 360, 15)),
    ((3, 41, 280, Mode::Read, 80), (true, 0, 360, 12)),
    ((3, 50, 280, Mode::Read, 80), (true, 0, 360, 12)),
    ((3, 51, 280, Mode::Read, 80), (true, 0, 360, 10)),
    ((3, 59, 280, Mode::Read, 80), (true, 0, 360, 10)),
    ((3, 60, 280, Mode::Read, 80), (true, 0, 360, 10)),
    ((3, 61, 280, Mode::Read, 80), (true, 0, 360, 10)),
    ((3, u64::MAX, 280, Mode::Read, 80), (true, 0, 360, 10)),
    ((3, 25, 280, Mode::Write, 80), (true, 0, 280, 20)),
    (
        (3, 25, u64::MAX, Mode::Read, 1),
        (true, 0, u64::MAX, 1317624576693539401),
    ),
    (
        (3, 25, 18446744073709551614, Mode::Read, 1),
        (true, 0, u64::MAX, 1317624576693539401),
    ),
    ((3, 60, 26, Mode::Read, 0), (true, 0, 26, 0)),
    ((3, 60, 27, Mode::Read, 0), (true, 0, 27, 1)),
];

pub const LOANS: [Case; 38] = [
    (
        (0, 21474836489, 3, Mode::Read, 21474836487),
        (false, 0, 0, 21474836487),
    ),
    ((0, 0, 0, Mode::Write, 0), (false, 0, 0, 0)),
    (
        (0, u64::MAX, u64::MAX, Mode::Read, u64::MAX),
        (false, 0, 0, u64::MAX),
    ),
    (
        (1, 21474836489, 3, Mode::Read, 21474836487),
        (true, 0, 0, 21474836487),
    ),
    ((1, 0, 0, Mode::Write, 0), (true, 0, 0, 0)),
    (
        (1, u64::MAX, u64::MAX, Mode::Read, u64::MAX),
        (true, 0, 0, u64::MAX),
    ),
    (
        (2, 21474836489, 3, Mode::Read, 21474836487),
        (true, 0, 0, 0),
    ),
    ((2, 0, 0, Mode::Write, 0), (true, 0, 0, 0)),
    (
        (2, u64::MAX, u64::MAX, Mode::Read, u64::MAX),
        (true, 0, 0, 0),
    ),
    (
        (3, 21474836489, 3, Mode::Read, 21474836487),
        (true, 9, 7, 21474836483),
    ),
    ((3, 0, 0, Mode::Write, 0), (true, 0, 0, 0)),
    (
        (3, u64::MAX, u64::MAX, Mode::Read, u64::MAX),
        (true, 4294967295, u64::MAX, u64::MAX),
    ),
    (
        (4, 21474836489, 3, Mode::Read, 21474836487),
        (false, 0, 0, 21474836487),
    ),
    ((4, 0, 0, Mode::Write, 0), (false, 0, 0, 0)),
    (
        (4, u64::MAX, u64::MAX, Mode::Read, u64::MAX),
        (false, 0, 0, u64::MAX),
    ),
    (
        (255, 21474836489, 3, Mode::Read, 21474836487),
        (false, 0, 0, 21474836487),
    ),
    ((255, 0, 0, Mode::Write, 0), (false, 0, 0, 0)),
    (
        (255, u64::MAX, u64::MAX, Mode::Read, u64::MAX),
        (false, 0, 0, u64::MAX),
    ),
    (
        (1, 21474836489, 0, Mode::Write, 0),
        (true, 0, 0, 21474836489),
    ),
    (
        (1, 21474836489, 0, Mode::Write, 7),
        (true, 0, 0, 21474836489),
    ),
    (
        (1, 21474836489, 0, Mode::Write, 4294967296),
        (true, 0, 0, 4294967296),
    ),
    (
        (1, 21474836489, 0, Mode::Write, u64::MAX),
        (true, 0, 0, u64::MAX),
    ),
    (
        (1, 18446744069414584320, 0, Mode::Write, 4294967295),
        (true, 0, 0, 18446744069414584320),
    ),
    ((1, 0, 0, Mode::Write, 3), (true, 0, 0, 0)),
    (
        (2, 21474836489, 0, Mode::Write, 21474836480),
        (true, 0, 0, 0),
    ),
    (
        (2, 21474836489, 0, Mode::Write, 25769803785),
        (true, 0, 0, 25769803785),
    ),
    ((2, 9, 0, Mode::Write, 4), (true, 0, 0, 0)),
    (
        (
            2,
            18446744069414584321,
            0,
            Mode::Write,
            18446744069414584322,
        ),
        (true, 0, 0, 0),
    ),
    (
        (
            2,
            18446744069414584321,
            0,
            Mode::Write,
            18446744065119617026,
        ),
        (true, 0, 0, 18446744065119617026),
    ),
    (
        (2, 5, 0, Mode::Write, 21474836485),
        (true, 0, 0, 21474836485),
    ),
    (
        (3, 38654705684, 20, Mode::Write, 21474836490),
        (true, 20, 20, 21474836500),
    ),
    (
        (3, 38654705684, 20, Mode::Write, 21474836510),
        (true, 20, 30, 21474836500),
    ),
    (
        (3, 20, 4294967296, Mode::Read, 21474836510),
        (true, 20, 4294967296, 21474836480),
    ),
    (
        (3, 20, 4294967303, Mode::Write, 21474836510),
        (true, 20, 4294967303, 21474836487),
    ),
    (
        (3, 8589934591, 4294967295, Mode::Write, 21474836480),
        (true, 4294967295, 4294967295, 25769803775),
    ),
    (
        (3, 0, 0, Mode::Write, u64::MAX),
        (true, 0, 4294967295, 18446744069414584320),
    ),
    (
        (3, 12884901888, 0, Mode::Read, 17179869184),
        (true, 0, 0, 17179869184),
    ),
    (
        (3, 4294967296, 10, Mode::Read, 17179869194),
        (true, 0, 10, 17179869194),
    ),
];
