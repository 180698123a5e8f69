//! What the lines so far declare.

ghost use Rattle.std.specs.Prelude.{◌≡◌, ◌≤◌, ◌&&◌, nat_le, length};
ghost use Rattle.pr_roles.specs.declared.limits.TheConstants.{MOST_DECLARED_2};
ghost use Rattle.pr_text.specs.LineFaults.{limit_of};
ghost use Rattle.pr_text.specs.inside.Steps.{Gives};
ghost use Rattle.pr_text.specs.inside.LineSteps.{planned_step};

use crate::diagnosis::{Above, Section};
use crate::draft::{Draft, number_in, pending_of};
use crate::fault::{ReadError, Which};
use crate::open_script::{OpenScript, is_spelled};
use crate::uniqueness::{are_codes_distinct, are_names_distinct};
use pr_attention::Attention;
use pr_cdb::Command;
use pr_lines::{ParsedCommand, RefusalKind, ScenarioLine, StartReservation};
use pr_registry::Held;
use pr_roles::limits::{
    MOST_CLAUSES, MOST_KEYS, MOST_PLANNED, MOST_REFUSALS, MOST_RESETS, most_declared,
};
use pr_roles::{Clause, Task, Word, are_alternatives, are_distinct, are_held_apart, is_action};
use pr_script::Script;
use pr_script::limits::MOST_BUDGET;
use std::alloc::{AllocError, Global};
use std::mem;

/// Where the next line stands.
#[derive(Drop)]
pub enum Context {
    /// Before the version.
    BeforeAll,
    /// Outside scripts and plans.
    Outside,
    InScript(OpenScript),
    /// In the plan of the guest with this number, which begins on this line, behind these commands.
    InPlan(usize, u32, Vec<Command>),
}

/// What the lines so far declare.
#[derive(Drop)]
pub struct Builder {
    /// That of the text, and 1 before its first line.
    pub version: u8,
    pub keys: Option<Vec<u64>>,
    pub reservations: Option<Vec<Option<Held>>>,
    pub generation: Option<u32>,
    /// How often the unit may be reset during a run.
    pub resets: Option<u32>,
    /// Whether a line says that the disk looks at the reservation before an attention.
    pub in_order: bool,
    pub nexuses: Vec<Draft>,
    pub place: Context,
    ghost few: { length nexuses.items ≤ MOST_DECLARED_2 },
}

impl Builder {
    ghost use Rattle.std.specs.Prelude.{◌≡◌, ◌<◌, nat_lt, not, IfOk, IfSome, [], length, map, fold, option_map, position, bytes_eq};
    ghost use Rattle.std.specs.List.{list_all, list_any};
    ghost use Rattle.pr_text.specs.declared.builder.Context.TheVariants.{Outside};
    ghost use Rattle.pr_text.specs.inside.Steps.{Gives};
    ghost use Rattle.pr_lines.specs.LineValues.{line_of_value, wanted_seen};
    ghost use Rattle.pr_lines.specs.ScenarioLines.{keys_line, nexus_line, start_line, pending_line, refusals_line, reservation_line, generation_line, resets_line, alone_line, order_line, role_line, script_line, plan_line, end_line};
    ghost use Rattle.pr_lines.specs.Versions.{since};
    ghost use Rattle.pr_text.specs.Declarations.{before_all, in_script, in_plan, nothing};
    ghost use Rattle.pr_text.specs.Declaring.{declared_keys, number_of, nexus_named, holds_of, held_of};
    ghost use Rattle.pr_lines.specs.Chain.{each};
    ghost use Rattle.pr_text.specs.inside.Drafts.{draft_seen, task_seen, declared_by};
    ghost use Rattle.pr_text.specs.inside.OpenScripts.{open_seen};
    ghost use Rattle.pr_text.specs.inside.LineSteps.{declaring_step, item_standing};
    ghost use Rattle.pr_text.specs.NextLine.{with_alone, with_task, item_placed};

    /// Nothing is declared yet.
    pub fn new(alloc: Global) -> Self
        ensures { declared_by result ≡ nothing }
    {
        Builder {
            version: 1,
            keys: None,
            reservations: None,
            generation: None,
            resets: None,
            in_order: false,
            nexuses: Vec::new(alloc),
            place: Context::BeforeAll,
        }
    }

    /// What stands above the next line.
    pub fn above(&self) -> Above {
        match &self.place {
            Context::BeforeAll => Above::nothing(),
            Context::Outside => Above::within(self.version, Section::Outside),
            Context::InScript(script) => script.above(self.version),
            Context::InPlan(_, line, _) => Above::within(self.version, Section::Plan(*line)),
        }
    }

    /// What is declared with one line more.
    #[tactic(auto, unfolding(crate::specs::NextLine::item_placed, crate::specs::inside::LineSteps::item_standing))]
    pub fn with_item(self, alloc: Global, line: u32, item: ScenarioLine) -> Result<Self, ReadError>
        ensures { Gives declared_by result
            (item_placed line (line_of_value item) (declared_by self)) }
    {
        if self.is_before(&item) {
            return Err(ReadError::Syntax { line });
        }
        self.with_standing(alloc, line, item)
    }

    // Whether the version came before such a line.
    fn is_before(&self, item: &ScenarioLine) -> bool
        ensures { result ≡ nat_lt self.now.version (since (line_of_value item.now)) }
    {
        self.version < item.since()
    }

    // What is declared with one line more, which the version has.
    #[tactic(auto, unfolding(crate::specs::inside::LineSteps::item_standing))]
    fn with_standing(
        mut self,
        alloc: Global,
        line: u32,
        item: ScenarioLine,
    ) -> Result<Self, ReadError>
        ensures { Gives declared_by result
            (item_standing line (line_of_value item) (declared_by self)) }
    {
        match mem::replace(&mut self.place, Context::Outside) {
            Context::BeforeAll => self.first_line(line, item),
            Context::Outside => self.line_outside(alloc, line, item),
            Context::InScript(script) => self.line_in_script(alloc, line, script, item),
            Context::InPlan(guest, begun, commands) => {
                self.line_in_plan(line, guest, begun, commands, item)
            }
        }
    }

    #[tactic(auto, unfolding(crate::specs::inside::LineSteps::item_standing))]
    fn first_line(mut self, line: u32, item: ScenarioLine) -> Result<Self, ReadError>
        requires { self.place ≡ Outside }
        ensures { Gives declared_by result
            (item_standing line (line_of_value item)
            (record (declared_by self) { place = before_all })) }
    {
        match item {
            ScenarioLine::Fence(version) => {
                self.version = version;
                Ok(self)
            }
            _ => Err(ReadError::Syntax { line }),
        }
    }

    #[tactic(auto, unfolding(crate::specs::inside::LineSteps::item_standing, crate::specs::inside::LineSteps::declaring_step))]
    fn line_outside(self, alloc: Global, line: u32, item: ScenarioLine) -> Result<Self, ReadError>
        requires { self.place ≡ Outside }
        ensures { Gives declared_by result
            (item_standing line (line_of_value item) (declared_by self)) }
    {
        match item {
            ScenarioLine::Keys(keys) => self.keys_line(line, keys),
            ScenarioLine::Host(name) => self.nexus_line(alloc, line, false, name),
            ScenarioLine::Guest(name) => self.nexus_line(alloc, line, true, name),
            ScenarioLine::Start(name, alternatives) => self.start_line(line, name, alternatives),
            ScenarioLine::Pending(name, attentions) => self.pending_line(line, name, &attentions),
            ScenarioLine::Refusals(refusal, name, count) => {
                self.refusals_line(line, refusal, name, count)
            }
            ScenarioLine::Reservation(wanted) => self.reservation_line(alloc, line, &wanted),
            ScenarioLine::Generation(generation) => self.generation_line(line, generation),
            ScenarioLine::Resets(count) => self.resets_line(line, count),
            ScenarioLine::Alone(names) => self.alone_line(line, &names),
            ScenarioLine::Order => self.order_line(line),
            ScenarioLine::Role(name, clause) => self.role_line(line, name, clause),
            ScenarioLine::Script(name, budget) => self.script_line(alloc, line, name, budget),
            ScenarioLine::Plan(name) => self.plan_line(alloc, line, name),
            _ => Err(ReadError::Syntax { line }),
        }
    }

    #[tactic(auto, unfolding(crate::specs::inside::LineSteps::declaring_step))]
    fn keys_line(mut self, line: u32, keys: Vec<u64>) -> Result<Self, ReadError>
        ensures { Gives declared_by result
            (declaring_step line (keys_line keys.items) (declared_by self)) }
    {
        if self.keys.is_some() || !are_distinct(keys.as_slice()) {
            return Err(ReadError::Repeated { line });
        }
        if keys.len() > MOST_KEYS {
            let which = Which::Keys;
            return Err(ReadError::Limit { which, line });
        }
        self.keys = Some(keys);
        Ok(self)
    }

    #[tactic(auto, unfolding(crate::specs::inside::LineSteps::declaring_step))]
    fn nexus_line(
        mut self,
        alloc: Global,
        line: u32,
        is_guest: bool,
        name: Word,
    ) -> Result<Self, ReadError>
        ensures { Gives declared_by result
            (declaring_step line (nexus_line is_guest name.bytes) (declared_by self)) }
    {
        if self.number_of(&name).is_some() {
            return Err(ReadError::Repeated { line });
        }
        if self.nexuses.len() >= most_declared(self.version) {
            let which = Which::Hosts;
            return Err(ReadError::Limit { which, line });
        }
        self.nexuses.push(Draft::new(alloc, name, line, is_guest))?;
        Ok(self)
    }

    #[tactic(auto, unfolding(crate::specs::inside::LineSteps::declaring_step), using(crate::proofs::lemmas::Drafts::Numbers::found, crate::proofs::lemmas::Drafts::Numbers::changed))]
    fn start_line(
        mut self,
        line: u32,
        name: Word,
        alternatives: Vec<Option<u64>>,
    ) -> Result<Self, ReadError>
        ensures { Gives declared_by result
            (declaring_step line (start_line name.bytes alternatives.items) (declared_by self)) }
    {
        let Some(number) = self.number_of(&name) else {
            return Err(ReadError::UnknownName { line });
        };
        let nexus = &self.nexuses[number];
        if !are_alternatives(self.declared_keys(), &alternatives) {
            return Err(ReadError::UndeclaredKey { line });
        }
        if nexus.start.is_some() || !are_distinct(&alternatives) {
            return Err(ReadError::Repeated { line });
        }
        self.nexuses[number].start = Some(alternatives);
        Ok(self)
    }

    #[tactic(auto, unfolding(crate::specs::inside::LineSteps::declaring_step), using(crate::proofs::lemmas::Drafts::Numbers::found, crate::proofs::lemmas::Drafts::Numbers::changed))]
    fn pending_line(
        mut self,
        line: u32,
        name: Word,
        attentions: &[Attention],
    ) -> Result<Self, ReadError>
        ensures { Gives declared_by result
            (declaring_step line (pending_line name.bytes attentions.now) (declared_by self)) }
    {
        let Some(number) = self.number_of(&name) else {
            return Err(ReadError::UnknownName { line });
        };
        let nexus = &mut self.nexuses[number];
        if nexus.pending.is_some() || !are_codes_distinct(attentions) {
            return Err(ReadError::Repeated { line });
        }
        nexus.pending = Some(pending_of(attentions));
        Ok(self)
    }

    #[tactic(auto, unfolding(crate::specs::inside::LineSteps::declaring_step), using(crate::proofs::lemmas::Drafts::Numbers::found, crate::proofs::lemmas::Drafts::Numbers::changed))]
    fn refusals_line(
        mut self,
        line: u32,
        refusal: RefusalKind,
        name: Word,
        count: u64,
    ) -> Result<Self, ReadError>
        ensures { Gives declared_by result
            (declaring_step line (refusals_line refusal name.bytes count) (declared_by self)) }
    {
        let Some(number) = self.number_of(&name) else {
            return Err(ReadError::UnknownName { line });
        };
        let nexus = &mut self.nexuses[number];
        if nexus.count(refusal).is_some() {
            return Err(ReadError::Repeated { line });
        }
        if !is_within(count, MOST_REFUSALS) {
            let which = limit_of(refusal);
            return Err(ReadError::Limit { which, line });
        }
        nexus.set_count(refusal, count as u32);
        Ok(self)
    }

    #[tactic(auto, unfolding(crate::specs::inside::LineSteps::declaring_step))]
    fn reservation_line(
        mut self,
        alloc: Global,
        line: u32,
        wanted: &[StartReservation],
    ) -> Result<Self, ReadError>
        ensures { Gives declared_by result
            (declaring_step line (reservation_line (map wanted_seen wanted.now))
            (declared_by self)) }
    {
        let Some(reservations) = self.reservations_of(alloc, wanted)? else {
            return Err(ReadError::UnknownName { line });
        };
        if self.reservations.is_some() || !are_held_apart(&reservations) {
            return Err(ReadError::Repeated { line });
        }
        self.reservations = Some(reservations);
        Ok(self)
    }

    #[tactic(auto, unfolding(crate::specs::inside::LineSteps::declaring_step))]
    fn generation_line(mut self, line: u32, generation: u32) -> Result<Self, ReadError>
        ensures { Gives declared_by result
            (declaring_step line (generation_line generation) (declared_by self)) }
    {
        if self.generation.is_some() {
            return Err(ReadError::Repeated { line });
        }
        self.generation = Some(generation);
        Ok(self)
    }

    #[tactic(auto, unfolding(crate::specs::inside::LineSteps::declaring_step))]
    fn resets_line(mut self, line: u32, count: u64) -> Result<Self, ReadError>
        ensures { Gives declared_by result
            (declaring_step line (resets_line count) (declared_by self)) }
    {
        if self.resets.is_some() {
            return Err(ReadError::Repeated { line });
        }
        if !is_within(count, MOST_RESETS) {
            let which = Which::Resets;
            return Err(ReadError::Limit { which, line });
        }
        self.resets = Some(count as u32);
        Ok(self)
    }

    #[tactic(auto, unfolding(crate::specs::inside::LineSteps::declaring_step), using(crate::proofs::lemmas::Drafts::Numbers::all_named, crate::proofs::lemmas::Drafts::Numbers::any_named, crate::proofs::lemmas::Drafts::Numbers::fold_named))]
    fn alone_line(mut self, line: u32, names: &[Word]) -> Result<Self, ReadError>
        ensures { Gives declared_by result
            (declaring_step line (alone_line (map (λ name. name.bytes) names.now))
            (declared_by self)) }
    {
        if !self.are_hosts(names) {
            return Err(ReadError::UnknownName { line });
        }
        if self.is_alone_among(names) || !are_names_distinct(names) {
            return Err(ReadError::Repeated { line });
        }
        self.set_all_alone(names);
        Ok(self)
    }

    // Whether each of these names is a host's.
    fn are_hosts(&self, names: &[Word]) -> bool
        ensures { result ≡ list_all (λ name. holds_of (declared_by self.now) name.bytes
            (λ x. not x.is_guest)) names.now }
    {
        names.iter().all(|name| self.is_host(name))
    }

    fn is_host(&self, name: &Word) -> bool
        ensures { result ≡ holds_of (declared_by self.now) name.now.bytes (λ x. not x.is_guest) }
    {
        self.nexus_named(name).is_some_and(|nexus| !nexus.is_guest)
    }

    // Whether a line has said of one of these that nobody else sends on its path.
    fn is_alone_among(&self, names: &[Word]) -> bool
        ensures { result ≡ list_any (λ name. holds_of (declared_by self.now) name.bytes
            (λ x. x.alone)) names.now }
    {
        names.iter().any(|name| self.is_alone(name))
    }

    fn is_alone(&self, name: &Word) -> bool
        ensures { result ≡ holds_of (declared_by self.now) name.now.bytes (λ x. x.alone) }
    {
        self.nexus_named(name).is_some_and(|nexus| nexus.alone)
    }

    fn nexus_named(&self, name: &Word) -> Option<&Draft>
        ensures { option_map (λ x. draft_seen x.now) result
            ≡ nexus_named (declared_by self.now) name.now.bytes }
    {
        let number = self.number_of(name)?;
        Some(&self.nexuses[number])
    }

    // Nobody else sends on the paths of these.
    fn set_all_alone(&mut self, names: &[Word])
        ensures { declared_by self.new
            ≡ fold (λ d name. with_alone d name.bytes) (declared_by self.old) names.now }
    {
        for name in names {
            self.set_alone(name);
        }
    }

    #[tactic(auto, using(crate::proofs::lemmas::Drafts::Numbers::found, crate::proofs::lemmas::Drafts::Numbers::changed))]
    fn set_alone(&mut self, name: &Word)
        ensures { declared_by self.new ≡ with_alone (declared_by self.old) name.now.bytes }
    {
        if let Some(number) = self.number_of(name) {
            self.nexuses[number].alone = true;
        }
    }

    #[tactic(auto, unfolding(crate::specs::inside::LineSteps::declaring_step))]
    fn order_line(mut self, line: u32) -> Result<Self, ReadError>
        ensures { Gives declared_by result (declaring_step line order_line (declared_by self)) }
    {
        if self.in_order {
            return Err(ReadError::Repeated { line });
        }
        self.in_order = true;
        Ok(self)
    }

    #[tactic(auto, unfolding(crate::specs::inside::LineSteps::declaring_step), using(crate::proofs::lemmas::Drafts::Numbers::found, crate::proofs::lemmas::Drafts::Numbers::changed))]
    fn role_line(mut self, line: u32, name: Word, clause: Clause) -> Result<Self, ReadError>
        ensures { Gives declared_by result
            (declaring_step line (role_line name.bytes clause) (declared_by self)) }
    {
        let Some(number) = self.number_of(&name) else {
            return Err(ReadError::UnknownName { line });
        };
        if !is_action(self.declared_keys(), clause.action) {
            return Err(ReadError::UndeclaredKey { line });
        }
        let nexus = &mut self.nexuses[number];
        if nexus.role.len() >= MOST_CLAUSES {
            let which = Which::Roles;
            return Err(ReadError::Limit { which, line });
        }
        nexus.role.push(clause)?;
        Ok(self)
    }

    #[tactic(auto, unfolding(crate::specs::inside::LineSteps::declaring_step), using(crate::proofs::lemmas::Drafts::Numbers::found))]
    fn script_line(
        mut self,
        alloc: Global,
        line: u32,
        name: Word,
        budget: u64,
    ) -> Result<Self, ReadError>
        ensures { Gives declared_by result
            (declaring_step line (script_line name.bytes budget) (declared_by self)) }
    {
        let Some(host) = self.number_of(&name) else {
            return Err(ReadError::UnknownName { line });
        };
        let nexus = &self.nexuses[host];
        if nexus.is_guest {
            return Err(ReadError::UnknownName { line });
        }
        if nexus.task.is_some() {
            return Err(ReadError::Repeated { line });
        }
        if !is_within(budget, MOST_BUDGET) {
            let which = Which::Budget;
            return Err(ReadError::Limit { which, line });
        }
        self.place = Context::InScript(OpenScript::new(alloc, line, host, budget as u32));
        Ok(self)
    }

    #[tactic(auto, unfolding(crate::specs::inside::LineSteps::declaring_step), using(crate::proofs::lemmas::Drafts::Numbers::found))]
    fn plan_line(mut self, alloc: Global, line: u32, name: Word) -> Result<Self, ReadError>
        ensures { Gives declared_by result
            (declaring_step line (plan_line name.bytes) (declared_by self)) }
    {
        let Some(guest) = self.number_of(&name) else {
            return Err(ReadError::UnknownName { line });
        };
        let nexus = &self.nexuses[guest];
        if !nexus.is_guest {
            return Err(ReadError::UnknownName { line });
        }
        if nexus.task.is_some() {
            return Err(ReadError::Repeated { line });
        }
        self.place = Context::InPlan(guest, line, Vec::new(alloc));
        Ok(self)
    }

    #[tactic(auto, unfolding(crate::specs::inside::LineSteps::item_standing))]
    fn line_in_script(
        mut self,
        alloc: Global,
        line: u32,
        script: OpenScript,
        item: ScenarioLine,
    ) -> Result<Self, ReadError>
        requires { self.place ≡ Outside }
        ensures { Gives declared_by result
            (item_standing line (line_of_value item)
            (record (declared_by self) { place = in_script (open_seen script) })) }
    {
        if let ScenarioLine::End = item {
            return self.script_end(line, script);
        }
        let script = script.with_item(alloc, line, self.declared_keys(), item)?;
        self.place = Context::InScript(script);
        Ok(self)
    }

    #[tactic(auto, unfolding(crate::specs::inside::LineSteps::item_standing), using(crate::proofs::lemmas::OpenScripts::Lines::closed_lines))]
    fn script_end(mut self, line: u32, script: OpenScript) -> Result<Self, ReadError>
        requires { self.place ≡ Outside }
        ensures { Gives declared_by result
            (item_standing line end_line
            (record (declared_by self) { place = in_script (open_seen script) })) }
    {
        if !script.is_closed() {
            return Err(ReadError::Syntax { line });
        }
        let OpenScript {
            host,
            budget,
            body,
            ..
        } = script;
        let script = Script { statements: body };
        self.set_task(host, Task::Scripted { script, budget });
        Ok(self)
    }

    #[tactic(auto, unfolding(crate::specs::inside::LineSteps::item_standing))]
    fn line_in_plan(
        mut self,
        line: u32,
        guest: usize,
        begun: u32,
        commands: Vec<Command>,
        item: ScenarioLine,
    ) -> Result<Self, ReadError>
        requires { self.place ≡ Outside }
        ensures { Gives declared_by result
            (item_standing line (line_of_value item)
            (record (declared_by self) { place = in_plan guest commands.items })) }
    {
        match item {
            ScenarioLine::Command(spelled) => {
                let commands = with_command(line, self.declared_keys(), commands, spelled)?;
                self.place = Context::InPlan(guest, begun, commands);
                Ok(self)
            }
            ScenarioLine::End => {
                self.set_task(guest, Task::Planned(commands));
                Ok(self)
            }
            _ => Err(ReadError::Syntax { line }),
        }
    }

    // The nexus with this number has its task.
    #[tactic(auto, using(crate::proofs::lemmas::Drafts::Numbers::found, crate::proofs::lemmas::Drafts::Numbers::changed))]
    fn set_task(&mut self, number: usize, task: Task)
        requires { self.old.place ≡ Outside }
        ensures { declared_by self.new ≡ with_task (declared_by self.old) number (task_seen task) }
    {
        if number < self.nexuses.len() {
            self.nexuses[number].task = Some(task);
        }
    }

    fn declared_keys(&self) -> &[u64]
        ensures { result.now ≡ declared_keys (declared_by self.now) }
    {
        match &self.keys {
            Some(keys) => keys,
            None => &[],
        }
    }

    // The number of the nexus with this name.
    #[tactic(auto, unfolding(crate::specs::Declaring::number_of))]
    fn number_of(&self, name: &Word) -> Option<usize>
        ensures value { result ≡ number_of (map draft_seen self.now.nexuses.items) name.now.bytes }
        ensures within { IfSome result (λ h. h < length self.now.nexuses.items) }
    {
        number_in(&self.nexuses, name)
    }

    // The reservations, if the holders are declared.
    #[tactic(auto, using(pr_lines::proofs::lemmas::Chain::Lists::each_same))]
    fn reservations_of(
        &self,
        alloc: Global,
        wanted: &[StartReservation],
    ) -> Result<Option<Vec<Option<Held>>>, AllocError>
        ensures { IfOk result (λ vs. option_map (λ v. v.items) vs
            ≡ each (held_of (map draft_seen self.now.nexuses.items))
            (map wanted_seen wanted.now)) }
    {
        let mut reservations = Vec::new(alloc);
        let mut rest = wanted;
        while let Some((first, others)) = rest.split_first() {
            let Some(held) = self.held_of(first) else {
                return Ok(None);
            };
            reservations.push(held)?;
            rest = others;
        }
        Ok(Some(reservations))
    }

    fn held_of(&self, wanted: &StartReservation) -> Option<Option<Held>>
        ensures { result ≡ held_of (map draft_seen self.now.nexuses.items)
            (wanted_seen wanted.now) }
    {
        match wanted {
            StartReservation::Nobody => Some(None),
            StartReservation::Single(kind, name) => {
                let number = self.number_of(name)?;
                Some(Some(Held::One(*kind, number as u8)))
            }
            StartReservation::Everybody(kind) => Some(Some(Held::All(*kind))),
        }
    }
}

// Whether the count is from 1 to the most that there may be.
fn is_within(count: u64, most: u32) -> bool
    ensures { result ≡ (nat_le 1 count && nat_le count most) }
{
    count >= 1 && count <= u64::from(most)
}

// The limit of how often the refusal may come.
fn limit_of(refusal: RefusalKind) -> Which
    ensures { result ≡ limit_of refusal }
{
    match refusal {
        RefusalKind::Busy => Which::Busy,
        RefusalKind::Full => Which::Full,
    }
}

// The commands with one more.
#[tactic(auto, unfolding(crate::specs::inside::LineSteps::planned_step))]
fn with_command(
    line: u32,
    keys: &[u64],
    mut commands: Vec<Command>,
    spelled: ParsedCommand,
) -> Result<Vec<Command>, ReadError>
    ensures { Gives (λ v. v.items) result (planned_step line keys.now spelled commands.items) }
{
    if !is_spelled(keys, spelled) {
        return Err(ReadError::UndeclaredKey { line });
    }
    if commands.len() >= MOST_PLANNED {
        let which = Which::Plan;
        return Err(ReadError::Limit { which, line });
    }
    commands.push(spelled.command)?;
    Ok(commands)
}
