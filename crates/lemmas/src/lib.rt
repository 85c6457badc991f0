// General laws that the toolchain's library lacks: cases, lists, counting, parts of slices, scans. No code.
#![tactic(auto)]
