// No code: this crate is the definitions of document 01, the cases and the laws over them, all in specs/.
#![tactic(auto)]
