// From keys to what they make.
pub mod limit;
pub mod promote;
pub mod rules;
