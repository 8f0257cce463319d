// Laws of normal forms: each is the contract of a function that does nothing.
ghost use Rattle.normal_spec.specs.Example.{Examples};
ghost use Rattle.normal_spec.specs.Laws.{NormalFormsKeep, NormalRunsKeepTypes};

/// The normal forms of a typed program run as its functions do, and use each variable once.
pub fn normal_forms_keep()
    ensures { NormalFormsKeep }
{}

/// Small normal forms are as they were worked out.
pub fn small_normal_forms()
    ensures { Examples }
{}

/// A run of a normal form on typed arguments gives a value of the result's type, where it gives one.
pub fn normal_runs_keep_types()
    ensures { NormalRunsKeepTypes }
{}
