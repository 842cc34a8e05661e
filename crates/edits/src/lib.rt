// What an update does to the lists of one record, as values: the edit of a list by a control, that of a
// list of attributes by their labels, and that of an object's four lists. Definitions and laws alone.
#![tactic(auto)]
