// What holds of the walks of functions: each function's contract is a law, and its body only cites others.
ghost use Rattle.walks.specs.Laws.{WalksArePlays, FunctionsHaveOneEnd};
ghost use Rattle.walks.specs.MoreReplies.{MoreRepliesAgree};

/// The walk of a function of a well typed module is its play.
pub fn walks_are_plays()
    ensures { WalksArePlays }
{}

/// From one entry and with the same replies the play of a function comes to one end.
pub fn functions_have_one_end()
    ensures { FunctionsHaveOneEnd }
{}

/// More replies change the play of a function at calls alone.
pub fn more_replies_agree()
    ensures { MoreRepliesAgree }
{}
