// The record of an end as four maps, and what joins it to the record in bytes: laws alone.
#![tactic(auto)]
