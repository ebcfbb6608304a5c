// Runs the house rules, the stores and the planner on many cases.
#![tactic(auto)]

#[cfg(test)]
mod cases;

#[cfg(test)]
mod tests {
    use super::cases::{CHARGES, Case, LOANS};
    use house::{ChargeKind, ChargeRule, LoanRule};
    use planner::{Fault, job_line, read_packs};
    use std::test::Fail;
    use stores::{ImageStore, TableStore};
    use terms::JobRule;

    fn agrees<R: JobRule>(rule: &R, cases: &[Case]) -> Result<(), Fail> {
        for ((kind, argument, work, mode, met), (known, start, take, give)) in cases {
            let told = (
                rule.knows(*kind),
                rule.start(*kind, *argument),
                rule.take(*kind, *argument, *work, 0, *mode, *met),
                rule.give(*kind, *argument, *work, 0, *met),
            );
            if told != (*known, *start, *take, *give) {
                return Err(Fail::new(format_args!("kind {kind}, argument {argument}: {told:?}")));
            }
        }
        Ok(())
    }

    #[test]
    fn rules_agree_with_the_cases() -> Result<(), Fail> {
        agrees(&ChargeRule, &CHARGES)?;
        agrees(&LoanRule, &LOANS)
    }

    #[test]
    fn two_packs_last_twenty_hours(rt: HostRuntime) -> Result<(), Fail> {
        let kind = ChargeKind::Plan.into();
        let table = TableStore::new(vec![in rt.alloc(); 200, 80]?);
        assert_eq!(rt; job_line(&table, &ChargeRule, kind, 25), 20);
        let image = ImageStore::new(vec![in rt.alloc();
            0, 0, 0, 0, 0, 0, 0, 200, 0, 0, 0, 0, 0, 0, 0, 80, 9,
        ]?);
        assert_eq!(rt; job_line(&image, &ChargeRule, kind, 25), 20);
        Ok(())
    }

    #[test]
    fn faults_name_their_line(rt: HostRuntime) {
        let texts: [(&[u8], Option<usize>); 9] = [
            (b"", None),
            (b"0", None),
            (b"200\n80\n", None),
            (b"18446744073709551615\n0000000000000000000000007", None),
            (b"\n", Some(1)),
            (b"1\n\n2", Some(2)),
            (b"1\n2\n-3\n4\n", Some(3)),
            (b"1\n18446744073709551616\n", Some(2)),
            (b"7\r\n", Some(1)),
        ];
        for (text, line) in texts {
            let fault = read_packs(rt.alloc(), text).err();
            assert_eq!(rt; fault, line.map(|line| Fault::NoNumber { line }));
        }
    }
}
