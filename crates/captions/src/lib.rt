// Which bytes a caption may have, how they leave and are read back: all in specs/.

#![tactic(auto)]
