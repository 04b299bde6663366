// The dual table of a rule file: its definitions stand in specs/, their laws in proofs/. The functions that write it are in the crate
// dual_writer.
#![tactic(auto)]
