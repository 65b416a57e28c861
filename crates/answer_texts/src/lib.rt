// What the command line answers, as texts: JSON, tables for people, and accounts. The functions here are proved safe, and held to the
// tests of the program `exchange`.
#![tactic(auto)]

mod account; // account.rt: what a settlement brings everybody
mod json; // json.rt: answers for other programs
mod names; // names.rt: names of growers and pilots
mod sheet; // sheet.rt: a ticket settled, as an object
mod sheet_table; // sheet_table.rt: the same for people

pub use account::AccountLines;
pub use json::{DocumentObject, MarkedObject, RefusalObject};
pub use sheet::SheetObject;
pub use sheet_table::Table;
