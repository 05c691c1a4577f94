// The four calls as C sees them: each is the call of the same name in `cube_c`, under the same contract.
#![tactic(auto)]

pub mod exports;
