// Wrong loaders, each as a property of its calls, and that the promise of the calls shuts it out, by the
// small files of `witness`. No code.
#![tactic(auto)]
