mod claimed_sweeps_example;
mod command_answers_example;
mod commands_example;
mod program_commands_example;
mod run_commands_example;
mod scenario_explorer_example;
