// What the promises of the calls come to together. No code stands here; read specs/, in the order of specs/Lib.antt.

#![tactic(auto)]
