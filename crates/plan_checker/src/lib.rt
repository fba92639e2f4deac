//! Plans of a job graph, what they cost, and certificates that a plan is a cheapest one.
//!
//! A plan says of each job whether its outputs are loaded, computed or done without. Charges spread what must be paid
//! over the jobs by five rules; what they are worth is a bound on every valid plan's cost. So a valid plan whose cost
//! is the worth of its charges is a cheapest one, and anybody can check that in linear time, without a planner:
//! `check` answers the cost exactly where plan and charges make a certificate, and else the first broken rule. The
//! laws in `laws` are proved over all graphs. A certificate has a text, which `write_certificate` writes and
//! `read_certificate` reads.
#![tactic(auto)]

mod broken;
mod certificate_error;
mod charges;
mod checker;
mod child;
mod claim;
mod draft;
mod graph;
mod graph_error;
mod laws;
mod number;
mod plan;
mod reader;
mod row;
mod vertex;
mod writer;

pub use broken::Broken;
pub use certificate_error::CertificateError;
pub use charges::Charges;
pub use checker::check;
pub use child::Child;
pub use graph::{Graph, MOST_COST, MOST_ENTRIES, MOST_VERTICES};
pub use graph_error::GraphError;
pub use laws::{
    certificates_are_cheapest, certificates_break_nothing, charges_bound_costs, each_has_least,
    graphs_are_limited, least_is_one, one_bad_line_is_first, texts_tell_certificates,
};
pub use plan::{Mark, Plan};
pub use reader::read_certificate;
pub use vertex::Vertex;
pub use writer::write_certificate;
