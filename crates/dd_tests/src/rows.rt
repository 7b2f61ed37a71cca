ghost use Rattle.std.specs.Prelude.{◌≡◌, Bool, IfOk};
ghost use Rattle.dd_tests.specs.Tables.{Tells, told};

use dd_concept::NoMemory;
use std::alloc::Global;

/// A row of a table: what is asked of a library, and what it has to answer.
///
/// Its `answers` says what may be known of a row from its answer, yes or no. The tables of this crate say nothing there. It is
/// for the contract of `check`, which holds whatever a row says.
pub trait Row {
    ghost answers: { Self → Bool → Type 0 };

    /// Whether the answer is that of the row.
    fn is_right(&self, alloc: Global) -> Result<bool, NoMemory>
        ensures { IfOk result (λ yes. answers self.now yes) };
}

/// Why a test fails.
#[derive(Debug, Drop)]
pub enum Failure {
    /// The first row that is answered otherwise, from 0.
    WrongRow(usize),
    /// What is asked without a table is answered otherwise.
    WrongAnswer,
    /// Memory ran out, whatever is asked.
    NoMemory,
}

/// Whether each row of a table is answered as it says.
pub fn check<R: Row>(alloc: Global, rows: &[R]) -> Result<(), Failure>
    ensures { Tells R.answers rows.now result }
{
    for (i, row) in rows.iter().enumerate() {
        match row.is_right(alloc) {
            Ok(true) => {}
            Ok(false) => return Err(Failure::WrongRow(i)),
            Err(_) => return Err(Failure::NoMemory),
        }
    }
    Ok(())
}

/// Whether an answer without a table is the right one.
pub fn check_one(is_right: Result<bool, NoMemory>) -> Result<(), Failure>
    ensures { result ≡ told is_right }
{
    match is_right {
        Ok(true) => Ok(()),
        Ok(false) => Err(Failure::WrongAnswer),
        Err(_) => Err(Failure::NoMemory),
    }
}
