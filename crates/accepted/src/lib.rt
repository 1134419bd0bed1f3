#![tactic(auto)]

// What a history writes, the judge accepts: theorems alone.
