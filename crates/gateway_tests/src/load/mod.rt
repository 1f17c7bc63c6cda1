// Loads by a clock of their own. Whole traces and their faults, `tests/load` tries by the program.
mod crowd_tests;
mod overlap_tests;
