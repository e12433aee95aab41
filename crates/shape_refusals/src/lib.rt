// What a shape refusal means, as laws alone: no function. The promise is in specs/ShapeRefusals.
#![tactic(auto)]
