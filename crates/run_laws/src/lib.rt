//! Laws that join runs: what one run leaves, another finds, and a run over what is right for it is done.
#![tactic(auto)]

mod laws;
mod right_files;
mod right_records;

pub use laws::{
    advice_at_a_solved_score_loses_at_most_its_printed_bounds,
    advice_from_a_solved_file_loses_at_most_its_printed_bounds, analyses_by_a_solved_file_are_true,
    analyses_by_a_solved_match_are_true, files_of_a_solved_match_are_consistent,
    files_of_a_solved_match_are_right, made_records_are_right, plans_by_a_solved_match_are_true,
    records_are_analysed_by_a_solved_file, records_are_analysed_by_a_solved_match,
    right_runs_are_done, solved_files_are_consistent, solved_files_are_right,
};
pub use right_files::right_files_are_not_refused;
pub use right_records::{
    files_with_right_pages_can_judge, held_records_are_right, printed_records_are_held,
    right_records_are_not_refused,
};
