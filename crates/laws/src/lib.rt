// Lemmas that know nothing of timetables: Booleans, lists. All of it stands in specs/.
#![tactic(auto)]
