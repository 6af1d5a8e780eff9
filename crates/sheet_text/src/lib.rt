// The text of a sheet, as a writer would write it, and the laws that a text is read exactly when it is
// such a text of a sheet within the limits.
#![tactic(auto)]
