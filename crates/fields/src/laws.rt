// What cutting keeps, and which bytes are numbers. Each function answers the numbers of its law.
ghost use Rattle.fields.specs.Laws.{LinesJoinToTheScript, FieldsJoinToTheirLines, FieldsStandInTheScript};
ghost use Rattle.fields.specs.Number.{NumbersAreDecimals};

// The lines joined by line feeds, and the last line feed put back, are the script.
#[tactic(auto, using(crate::proofs::Within::lines_join))]
pub fn lines_join_to_the_script() -> u8
    ensures { LinesJoinToTheScript result }
{
    b'\n'
}

// The fields of a line joined by commas are the line.
#[tactic(auto, using(crate::proofs::Within::fields_join_to_their_lines))]
pub fn fields_join_to_their_lines() -> u8
    ensures { FieldsJoinToTheirLines result }
{
    b','
}

// Each field is the bytes of the script at its place, without comma and line feed.
#[tactic(auto, using(crate::proofs::Within::fields_stand_in_the_script))]
pub fn fields_stand_in_the_script() -> (u8, u8)
    ensures { FieldsStandInTheScript result.0 result.1 }
{
    (b',', b'\n')
}

// Bytes write a number exactly where they are its decimal digits and it has at most 18 of them.
#[tactic(auto, using(crate::proofs::Written::numbers_are_decimals))]
pub fn numbers_are_decimals() -> u64
    ensures { NumbersAreDecimals result }
{
    1_000_000_000_000_000_000
}
