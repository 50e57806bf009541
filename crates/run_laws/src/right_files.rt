ghost use Rattle.std.specs.Prelude.{ℕ, List, Option, true};
ghost use Rattle.outside_log.specs.Files.{Contents};
ghost use Rattle.word_pages.specs.declared.version.Version.{Version};
ghost use Rattle.command_line.specs.declared.command.Advise.{Advise as AdviseTask};
ghost use Rattle.command_line.specs.declared.command.Migrate.{Migrate as MigrateTask};
ghost use Rattle.command_line.specs.declared.command.Plan.{Plan as PlanTask};
ghost use Rattle.command_line.specs.declared.command.Reply.{Reply as ReplyTask};
ghost use Rattle.command_line.specs.declared.command.Scan.{Scan as ScanTask};
ghost use Rattle.command_line.specs.declared.command.Show.{Show as ShowTask};
ghost use Rattle.equity_report.specs.declared.refusal.Refusal.{Refusal};
ghost use Rattle.run_endings.specs.Endings.{IsOutside};
ghost use Rattle.base_commands.specs.Advises.{MayRefuseAdvice};
ghost use Rattle.base_commands.specs.ListAnswers.{RefusesListing};
ghost use Rattle.whole_file_commands.specs.Migrates.{MayRefuseMigrating};
ghost use Rattle.whole_file_commands.specs.Plans.{MayRefusePlanning};
ghost use Rattle.whole_file_commands.specs.Replies.{MayRefuseReplying};
ghost use Rattle.run_laws.specs.RightFiles.{IsRightForAdvising, IsRightForMigrating, IsRightForPlanning, IsRightForReplying, IsRightForScanning, IsRightForListing, IsRightForShowing, IsRightForVerifying};
ghost use Rattle.whole_file_commands.specs.Scans.{MayRefuseScanning};
ghost use Rattle.base_commands.specs.Shows.{RefusesShowing};
ghost use Rattle.whole_file_commands.specs.Verifies.{MayRefuseVerifying};

/// Where the file of a command is there and is right for what is asked of it, and all answers were faithful, the command is refused
/// only where reading failed or there was no memory. Of `show` and `advise` that is a file of the position's checkers, and of the
/// kind that is asked for, which is right up to its pages and on the pages on which the report rests; where they are asked for a list, one that is right up
/// to its pages, and the list is there and not too long. The others load a file, of
/// which nothing is wrong: `verify` and `migrate` one whose words are consistent, `scan` one of any game, where the text is that of a
/// condition, `reply` one of the position's checkers and the kind that is asked for, and `plan` one of the match's first game.
pub fn right_files_are_not_refused()
    ensures show { (task : ShowTask) (held : Option (List ℕ)) (refusal : Refusal)
        → IsRightForShowing task held → RefusesShowing task refusal held → IsOutside refusal }
    ensures list { (file list : List ℕ) (held : Contents) (refusal : Refusal)
        → IsRightForListing file list held → RefusesListing file list refusal held
        → IsOutside refusal }
    ensures advise { (task : AdviseTask) (held : Option (List ℕ)) (refusal : Refusal)
        → IsRightForAdvising task held → MayRefuseAdvice task true held refusal
        → IsOutside refusal }
    ensures verify { (oldest : Version) (name : List ℕ) (held : Option (List ℕ))
        (refusal : Refusal)
        → IsRightForVerifying oldest held → MayRefuseVerifying oldest name true held refusal
        → IsOutside refusal }
    ensures migrate { (task : MigrateTask) (held : Contents) (refusal : Refusal)
        → IsRightForMigrating task held → MayRefuseMigrating task true held refusal
        → IsOutside refusal }
    ensures scan { (task : ScanTask) (held : Option (List ℕ)) (refusal : Refusal)
        → IsRightForScanning task held → MayRefuseScanning task true held refusal
        → IsOutside refusal }
    ensures reply { (task : ReplyTask) (held : Option (List ℕ)) (refusal : Refusal)
        → IsRightForReplying task held → MayRefuseReplying task true held refusal
        → IsOutside refusal }
    ensures plan { (task : PlanTask) (held : Option (List ℕ)) (refusal : Refusal)
        → IsRightForPlanning task held → MayRefusePlanning task true held refusal
        → IsOutside refusal }
{}
