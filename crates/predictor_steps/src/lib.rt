// The steps of the predictor behind the local differences (4.6 to 4.9): the weights, the prediction, and the mapped residual.
#![tactic(auto)]

pub mod mapping;
pub mod prediction;
pub mod weights;
