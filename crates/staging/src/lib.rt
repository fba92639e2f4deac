//! Finds a job's output files by their names (CWL v1.2, CommandLineTool, "CommandOutputBinding"), and plans where files go.
//!
//! - `Pattern::read` reads a pattern, exactly as `specs/Reading.antt` has it, or says what is wrong with it.
//! - `Pattern::matches` says exactly which names a pattern matches: those that the rules of `specs/Glob.antt` relate to it.
//!   It takes no memory, and its steps are bounded by the product of the two lengths.
//! - `stage_plan` and `deliver_plan` plan where files are copied to. `place_groups` puts each group of files exactly where
//!   `specs/Placing.antt` has it, so that in one folder no name is that of two sources (`sources_never_meet`).
#![tactic(auto)]

mod bracket;
mod characters;
mod copying;
mod fault;
mod found;
mod group;
mod groups;
mod index;
mod item;
mod laws;
mod matching;
mod measure;
mod moves;
mod moving;
mod pattern;
mod placing;
mod plan;
mod reading;
mod spots;
mod syntax;
mod targets;

pub use copying::listing_in;
pub use fault::{GlobError, GlobFault};
pub use found::Found;
pub use group::{Member, Placed};
pub use item::{Bracket, CharRange, PatternItem};
pub use laws::{
    each_text_and_name_is_told, each_value_has_a_plan, hidden_by_a_period_alone, same_components,
    sources_never_meet, targets_never_meet, text_matches_itself_alone,
};
pub use measure::Measure;
pub use pattern::Pattern;
pub use placing::place_groups;
pub use plan::{Move, StagePlan, deliver_plan, stage_plan};
