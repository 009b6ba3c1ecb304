//! Checks one module against another: `run` reads the command line, loads both files, judges each
//! pair of functions, puts the proof file that is asked for, and writes the report. The command `log`
//! checks a proof file in its place, and `make` judges a pair of modules that it makes from a seed.
//!
//! It promises that the report is sound (`sound`, the first clause of `run`): a row `correct` means
//! that the target's function refines the source's on every input within the bounds, a row
//! `incorrect` gives a counterexample, and each pair of functions has its row, unless the report ends
//! at a row before; that status 0 means this refinement of each function of both files (`zero`); and
//! that without a limit on conflicts the output is the one defined report (`defined`), of which a
//! report that ends at its first incorrect row has the first rows
//! (`first_reports_have_the_first_rows`). The proof file has the bounds and the budget, and a part
//! for each correct and each incorrect row, whose log refutes its clauses, and `log` says `verified`
//! exactly of such parts, so of all parts of such a file (`put_proofs_are_verified`). The text of a
//! report has one list of rows (`texts_have_one_list_of_rows`). Each other status has its cause. A
//! function that can't be judged is a row of the report like any other. It uses the command line,
//! `module_files`, which reads the files, `module_rows`, the report, `proof_files` and `tv_io`; the
//! program `tv` is `run` over the system's files and output.
#![tactic(auto)]

mod check;
mod in_memory;
mod laws;
mod line_sink;
mod lines;
mod log;
mod made;
mod stop;
mod texts;
mod top;

pub use in_memory::{Checked, run_in_memory};
pub use laws::{
    faults_are_one, file_reports_are_defined, file_reports_are_sound,
    first_reports_have_the_first_rows, modules_have_no_fault, put_proofs_are_verified,
    reports_are_defined, reports_are_one, reports_are_sound, texts_have_one_list_of_rows,
};
pub use texts::{CheckedTexts, check_texts};
pub use top::run;
