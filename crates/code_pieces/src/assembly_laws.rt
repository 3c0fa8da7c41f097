// Laws of assembled words.

ghost use Rattle.code_pieces.specs.AssemblyLaws.{JumpsArrive};

/// Where assembled words stand in the code region, the play of a version goes from a branch or jump to where it leads, as long
/// as the stack pointer isn't the entering one.
pub fn jumps_arrive()
    ensures { JumpsArrive }
{}
