/// The greatest level of code that `dump` prints.
pub const GREATEST_LEVEL: u32 = 1;

/// The options of `run` and `big`.
#[derive(Clone, Copy, PartialEq, Eq)]
pub struct RunOptions {
    /// The number of harts, 1 to 16.
    pub harts: u32,
    /// The number of workers, 0 to 8.
    pub workers: u32,
    /// The words of the code region, 1 to 4,194,304.
    pub code_words: u32,
    /// The bytes of data memory, a multiple of 16 from 4,096 to 67,108,864.
    pub room: u64,
    /// Whether a report is printed.
    pub report: bool,
}

/// The options of `sim`.
#[derive(Clone, Copy, PartialEq, Eq)]
pub struct SimOptions {
    /// The number that the draws begin with.
    pub draw: u64,
    /// How many events are drawn, 0 to 1,000,000.
    pub steps: u32,
    /// The number of harts, 1 to 16.
    pub harts: u32,
    /// The words of the code region, 1 to 4,194,304.
    pub code_words: u32,
    /// The bytes of data memory, a multiple of 16 from 4,096 to 67,108,864.
    pub room: u64,
}

/// A command with all that it takes; the names of files are those in the words.
#[derive(Clone, Copy, PartialEq, Eq)]
pub enum CommandLine<'a> {
    /// Runs the calls of a list on harts.
    Run {
        /// The file of the module.
        module_name: &'a str,
        /// The file of the list of calls.
        calls_name: &'a str,
        /// The options.
        options: RunOptions,
    },
    /// Runs many calls of a module of its own.
    Big {
        /// The number of calls, 1 to 65,536.
        calls: u32,
        /// The options.
        options: RunOptions,
    },
    /// Evaluates the calls of a list.
    Eval {
        /// The file of the module.
        module_name: &'a str,
        /// The file of the list of calls.
        calls_name: &'a str,
        /// The bytes of data memory, a multiple of 16 from 4,096 to 67,108,864.
        room: u64,
    },
    /// Runs the calls of a list over events in a drawn order.
    Sim {
        /// The file of the module.
        module_name: &'a str,
        /// The file of the list of calls.
        calls_name: &'a str,
        /// The options.
        options: SimOptions,
    },
    /// Prints the code of a module.
    Dump {
        /// The file of the module.
        module_name: &'a str,
        /// The level of the code, 1 to `GREATEST_LEVEL`.
        level: u32,
    },
}
