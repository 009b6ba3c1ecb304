ghost use Rattle.report.specs.Rows.{FirstRowsAreTheFirst, RowsAreOne};

use verdicts::verdicts_are_one;

/// Two modules have at most one list of rows, as a pair has at most one verdict.
pub fn rows_are_one()
    ensures { RowsAreOne }
{
    verdicts_are_one();
}

/// A report that ends at its first incorrect row has the rows of the report of all rows, up to and with
/// the first incorrect one.
pub fn first_rows_are_the_first()
    ensures { FirstRowsAreTheFirst }
{
    verdicts_are_one();
}
