// No code: the words for what comes from the system and is handed to it. Only `streams` stands on this crate, so only `streams` can
// open them.
#![tactic(auto)]
