// What follows from a reading that was accepted: of one thing after another, of numbers, references and lists, of a constraint's
// fields. All of it is about the definitions, with no code in it.
#![tactic(auto)]
