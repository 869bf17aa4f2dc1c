/// What the words after the program's name ask for.
#[derive(Clone, Copy, Debug, PartialEq, Eq)]
pub enum Form {
    /// `step SCRIPT JOURNAL`: the lines of a script in file order.
    Step,
    /// `make NUMBER SESSIONS LINES`: a script that is made from a number.
    Make {
        /// What is made depends on nothing else than this number and the two below.
        number: u64,
        /// From 1 to 64.
        sessions: u64,
        /// From 1 to 199,936, the first line of each session not counted.
        lines: u64,
    },
}
