// What is printed is read as what it was: each function's contract is a law, and its body does nothing.
ghost use Rattle.ir_print_names.specs.Laws.{NamesReadBack, BytesReadBack, ValuesReadBack, NumbersReadBack};

/// The printed name of a global is read as a name that says the same bytes.
pub fn names_read_back()
    ensures { NamesReadBack }
{}

/// Printed bytes are read as text that says them.
pub fn bytes_read_back()
    ensures { BytesReadBack }
{}

/// The printed name of a value is read as that name.
pub fn values_read_back()
    ensures { ValuesReadBack }
{}

/// A printed number of more than one bit is read as digits that say it.
pub fn numbers_read_back()
    ensures { NumbersReadBack }
{}
