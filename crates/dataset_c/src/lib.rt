// The calls of include/udgornwy.h on captures and tables, as a static library for programs in other languages.
#![tactic(auto)]

mod capture;
mod table;
