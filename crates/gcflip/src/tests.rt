mod checks;
mod faults;
mod pairs;
mod plays;
mod reports;
mod threads;
mod traces;
