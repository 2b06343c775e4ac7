//! Tests of the crates up to class files, as tables: values and hosts; the constant pool, code and stack map frames, and
//! class files, read from bytes and written to bytes. What the program shows of these is asked by scripts/conformance.sh:
//! here each public function that takes memory is called where there is enough, with what it answers.
#![tactic(auto)]

#[cfg(test)]
mod class_tests;
#[cfg(test)]
mod code_tests;
#[cfg(test)]
mod encoding_tests;
#[cfg(test)]
mod frame_tests;
#[cfg(test)]
mod host_tests;
#[cfg(test)]
mod local_types_tests;
#[cfg(test)]
mod made_tests;
#[cfg(test)]
mod pool_tests;
#[cfg(test)]
mod value_tests;
