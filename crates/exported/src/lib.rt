// Theorems about runs of the exported functions of evtchn_fifo: no function stands here.
#![tactic(auto)]
