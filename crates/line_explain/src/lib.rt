//! What `--explain` says of a line of a script or a trace that is at fault, to a person.
//!
//! [`LineExplainer`] says which word of the line is wrong and what is wanted there, by the forms
//! that lines have (`script::line_forms`), and counts how often it had no memory for that;
//! [`tell_explained`] writes it. [`Kept`] is the reader that keeps the text for it. Which word is
//! named is pinned by `specs/Named.antt`: the first that no form can go on with, or that is out of
//! its range. Of the words that tell a person what is wanted there no contract says anything.
#![tactic(auto)]

mod choices;
mod classes;
mod explain;
mod explainer;
mod fitting;
mod kept;
mod lines_before;
mod shown;
mod told;
mod value;

pub use explainer::LineExplainer;
pub use kept::Kept;
pub use told::tell_explained;
