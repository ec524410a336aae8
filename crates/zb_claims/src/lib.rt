//! What a report says of a script: definitions alone. Lines of a script, the text of each line of a report, when a
//! report fits a script, the reasons for its lines, and what is claimed of a whole run.
#![tactic(auto)]
