// A script's calls, carried out one after the other on the writer's record; what each answers is printed, and the writes that it hands out are logged.
#![tactic(auto)]

pub mod report; // report.rt: what is told of a call
pub mod made; // made.rt: the call of a line
pub mod loading; // loading.rt: a script's lines one after the other
