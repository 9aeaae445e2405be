// Laws and theorems about the definitions of the crate `trees`. No code stands here; read specs/, in the order of specs/Lib.antt.

#![tactic(auto)]
