// Laws of printed text: each function's contract is a law, and its body does nothing.
ghost use Rattle.ir_print_laws.specs.FormLaws.{TypesReadBack, MemoryReadsBack, OperandsReadBack, TypedReadBack, OperationsReadBack, LongOperationsReadBack};

/// The printed type of a value is read as its tree.
pub fn types_read_back()
    ensures { TypesReadBack }
{}

/// The printed type of memory is read as its tree.
pub fn memory_reads_back()
    ensures { MemoryReadsBack }
{}

/// A printed operand is read as its tree.
pub fn operands_read_back()
    ensures { OperandsReadBack }
{}

/// A printed operand behind its type is read as its tree.
pub fn typed_read_back()
    ensures { TypedReadBack }
{}

/// A printed operation of a fixed number of operands is read as its tree.
pub fn operations_read_back()
    ensures { OperationsReadBack }
{}

/// A printed `phi`, `alloca` or `switch` is read as its tree.
pub fn long_operations_read_back()
    ensures { LongOperationsReadBack }
{}
