// The two job rules of the house.
#![tactic(auto)]

pub mod charges;
pub mod draws;
pub mod kinds;
pub mod laws;
pub mod loans;

pub use charges::{ChargeKind, ChargeRule};
pub use draws::{DRAW_SHEET, Row};
pub use kinds::UnknownKind;
pub use loans::{Loan, LoanKind, LoanRule};
