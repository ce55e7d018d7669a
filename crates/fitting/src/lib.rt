// What an accepted file with its tables gives to the functions that fill its counted lists: the rows of users and groups, and
// that the lists of each constraint are short enough. All of it stands in proofs/laws, with no code in it.
#![tactic(auto)]
