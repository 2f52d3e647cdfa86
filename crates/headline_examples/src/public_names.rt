//! Every public name that the documents promise, under the path that they give: where one is moved
//! or lost, this crate is no longer built.
pub mod engines;
pub mod library;
pub mod numbers;
pub mod reading;
pub mod records;
pub mod tables;
pub mod territories;
pub mod texts;
pub mod values;
