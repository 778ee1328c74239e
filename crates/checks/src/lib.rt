// Tests of base shapes, of the verdict on them, of sinks, of rings and edges, and of tables of meshes, their faces and data filled from them.
#![tactic(auto)]

#[cfg(test)]
mod copied;
#[cfg(test)]
mod data;
#[cfg(test)]
mod face_lists;
#[cfg(test)]
mod interpolation;
#[cfg(test)]
mod making;
mod pyramid;
#[cfg(test)]
mod sinks;
#[cfg(test)]
mod verdicts;
