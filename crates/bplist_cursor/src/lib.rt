//! Answers about the value of a checked file: follows paths, shows values, lists members and counts nodes, without
//! building the tree. Checking a file is in `bplist_cert`; writing a value as text is in `bplist_ascii`.
//!
//! ```
//! let path = Path::parse(alloc, "/WindowSize/width")?;
//! match locate_in_slice(&mut checked, &path) {
//!     Found::At(node) => println!(rt; "{:?}", face(alloc, &mut checked, node)?)?,
//!     Found::Missing { step, why } => println!(rt; "{why:?} at step {step}")?,
//! }
//! ```
//!
//! Every answer is that of the one value that the file holds. `CursorFault::Changed` means that the certificate does
//! not vouch for the node's object, or that the source gives other bytes than those that were checked.
//!
//! The modules, in reading order:
//!
//! | module | what it is about | public items |
//! |---|---|---|
//! | path | a path, from its text or its steps | [`Path`], [`PathFault`] |
//! | node | a node, and what a path leads to: a node, or why not | [`Found`], [`Node`], [`Why`] |
//! | lookup | following a path from the top | [`locate`], [`locate_in_slice`], [`locate_counted`] |
//! | steps | one step from a node | [`step_from`] |
//! | key_search | the keys of a dictionary, and a step as one of them | |
//! | replies | queries and replies; a face is a leaf's value, or a container's kind and count | [`Query`], [`Reply`], [`Face`], [`List`] |
//! | node_face | reading the face of a node | [`face`] |
//! | members | the members of a node | [`member`], [`member_by_head`] |
//! | bodies | a body, part by part or borrowed | [`node_head`], [`body_bytes`], [`body_units`], [`bytes_of`] |
//! | answers | replies to queries about a checked file | [`answer`], [`answer_all`] |
//! | certified_answers | the same from a file and a certificate: the theorem | [`answer_certified`], [`AnswerFault`] |
//! | sizes | node counts and text lengths | [`Form`], [`Measures`], [`measure`], [`is_plain`], [`are_plain`] |
//! | node_counts | the number of nodes of one value, by its containers alone | [`count_nodes`] |
//! | faults | the errors of the calls above | [`CursorFault`], [`Unread`] |
//! | laws | laws about specs/ | [`members_by_number`], [`one_key_of_a_thousand`], [`one_path`], [`one_place`], [`one_formless`], [`steps_follow_references`] |
#![tactic(auto)]

mod answers;
mod bodies;
mod certified_answers;
mod faults;
mod key_search;
mod laws;
mod lookup;
mod members;
mod node;
mod node_counts;
mod node_face;
mod path;
mod replies;
mod sizes;
mod steps;

pub use answers::{answer, answer_all};
pub use bodies::{body_bytes, body_units, bytes_of, node_head};
pub use certified_answers::{AnswerFault, answer_certified};
pub use faults::{CursorFault, Unread};
pub use laws::{
    members_by_number, none_failed, one_formless, one_key_of_a_thousand, one_path, one_place,
    steps_follow_references,
};
pub use lookup::{locate, locate_counted, locate_in_slice};
pub use members::{member, member_by_head};
pub use node::{Found, Node, Why};
pub use node_counts::count_nodes;
pub use node_face::face;
pub use path::{Path, PathFault};
pub use replies::{Face, List, Query, Reply};
pub use sizes::{Form, Measures, are_plain, is_plain, measure};
pub use steps::step_from;
