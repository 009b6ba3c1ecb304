//! What reports say, and that there is one.

ghost use Rattle.tv_run.specs.Laws.{FaultsAreOne, FileReportsAreDefined, FileReportsAreSound, FirstReportsHaveTheFirstRows, ModulesHaveNoFault, PutProofsAreVerified, ReportsAreDefined, ReportsAreOne, ReportsAreSound};
ghost use Rattle.tv_run.specs.OneReading.{TextsHaveOneListOfRows};

use ir_reader::is_one_module;
use proof_files::texts_are_verified;
use report::{first_rows_are_the_first, rows_are_one};
use verdicts::{correct_holds, incorrect_fails};

/// What a report says of two modules holds: a correct row means refinement on every input within the
/// bounds, an incorrect row has a counterexample, each pair of functions has its row, and with status 0
/// each function of either module is refined.
pub fn reports_are_sound()
    ensures { ReportsAreSound }
{
    correct_holds();
    incorrect_fails();
}

/// So does what a report says of two files.
pub fn file_reports_are_sound()
    ensures { FileReportsAreSound }
{
    reports_are_sound();
}

/// Without a limit on conflicts the report is the one that the definition of a verdict gives.
pub fn reports_are_defined()
    ensures { ReportsAreDefined }
{}

/// So is the report of two files, which have no other, as a file has one module and a pair one verdict.
pub fn file_reports_are_defined()
    ensures { FileReportsAreDefined }
{
    is_one_module();
    rows_are_one();
}

/// Two checks of equal files within the same bounds and budget have one report then, for every number
/// of workers.
pub fn reports_are_one()
    ensures { ReportsAreOne }
{
    is_one_module();
    rows_are_one();
}

/// Where a check is to end at the first incorrect row, its defined report has the rows of the whole one up
/// to and with that row.
pub fn first_reports_have_the_first_rows()
    ensures { FirstReportsHaveTheFirstRows }
{
    first_rows_are_the_first();
}

/// Two files have one fault, as a file has one fault or a module.
pub fn faults_are_one()
    ensures { FaultsAreOne }
{
    is_one_module();
}

/// Two files that are modules have no fault.
pub fn modules_have_no_fault()
    ensures { ModulesHaveNoFault }
{
    is_one_module();
}

/// The proof file that a check put for `--proof` is verified whole: where `log` writes what it finds of
/// it, that is a line `verified` for each correct and each incorrect row, none is bad, and the status is 0.
pub fn put_proofs_are_verified()
    ensures { PutProofsAreVerified }
{
    texts_are_verified();
}

/// The text of a report says which rows it has: how many, and of each its name and its finding, except
/// for the point of an incorrect row and what is shown of it.
pub fn texts_have_one_list_of_rows()
    ensures { TextsHaveOneListOfRows }
{}
