// Document 01, "Records": the bytes of tables, events and answers, apart from what they mean to a system.
#![tactic(auto)]

pub mod answer;
pub mod event;
pub mod kinds;
pub mod number;
pub mod of_record;
pub mod record;
pub mod refusal;
pub mod table_record;
