// The definitions of document 01: what a reader must believe. No code stands here; read specs/, in the order of specs/Lib.antt.

#![tactic(auto)]
