ghost use Rattle.gt_model.specs.Schema.{proxy_rows, section_rows, module_rows};
ghost use Rattle.gt_model.specs.Views.{proxy_value, section_value, module_value};
ghost use Rattle.gt_read.specs.Drafts.Views.{proxy_draft, section_draft, module_draft};
ghost use Rattle.gt_read.specs.Faults.{piece_faults};
ghost use Rattle.gt_read.specs.Drafts.Answers.{Starts, Steps, Finishes};

use crate::block_drafts::IntervalDraft;
use crate::children::{Children, take_child};
use crate::fault::FormatFault;
use crate::ids::{IdFault, Identifier, earlier};
use crate::message::Message;
use crate::module_drafts::{ModuleDraft, ProxyDraft, SectionDraft, SymbolDraft};
use crate::packed::take_numbers;
use crate::pieces::Piece;
use crate::slots::{take_signed, take_signed32, take_text, take_unsigned};
use crate::tables::{finish_tables, take_table};
use gr_base::{End, Seq, Text};
use gt_model::{Module, Section};
use std::alloc::{AllocError, Global};
use std::collections::BTreeMap;
use uuid::Uuid;

impl Message for ProxyDraft {
    type Made = Uuid;

    ghost starts = { Starts proxy_rows proxy_draft };

    ghost steps = { Steps proxy_rows proxy_draft };

    ghost faults = { piece_faults proxy_rows };

    ghost finishes = { Finishes proxy_rows proxy_draft proxy_value };

    fn start(_: Global, place: u64) -> ProxyDraft {
        ProxyDraft {
            uuid: Identifier::missing(place),
        }
    }

    fn take(&mut self, _: Global, part: &Piece<'_>) -> Result<(), End<FormatFault>> {
        match part.number {
            1 => {
                self.uuid.take(part);
                Ok(())
            }
            _ => Ok(()),
        }
    }

    fn finish(self, _: Global) -> Result<(Uuid, Option<IdFault>), AllocError> {
        let fault = self.uuid.fault();
        Ok((self.uuid.id, fault))
    }
}

impl Message for SectionDraft {
    type Made = Section;

    ghost starts = { Starts section_rows section_draft };

    ghost steps = { Steps section_rows section_draft };

    ghost faults = { piece_faults section_rows };

    ghost finishes = { Finishes section_rows section_draft section_value };

    fn start(alloc: Global, place: u64) -> SectionDraft {
        SectionDraft {
            uuid: Identifier::missing(place),
            name: Text::new(alloc),
            intervals: Children::new(alloc),
            flags: Seq::new(alloc),
        }
    }

    fn take(&mut self, alloc: Global, part: &Piece<'_>) -> Result<(), End<FormatFault>> {
        match part.number {
            1 => {
                self.uuid.take(part);
                Ok(())
            }
            2 => {
                take_text(alloc, &mut self.name, part)?;
                Ok(())
            }
            5 => {
                take_child::<IntervalDraft>(alloc, &mut self.intervals, part)?;
                Ok(())
            }
            6 => {
                take_numbers(&mut self.flags, part)?;
                Ok(())
            }
            _ => Ok(()),
        }
    }

    fn finish(self, _: Global) -> Result<(Section, Option<IdFault>), AllocError> {
        let SectionDraft {
            uuid,
            name,
            intervals,
            flags,
        } = self;
        let fault = earlier(uuid.fault(), intervals.fault);
        let made = Section {
            uuid: uuid.id,
            name,
            intervals: intervals.items,
            flags,
        };
        Ok((made, fault))
    }
}

impl Message for ModuleDraft {
    type Made = Module;

    ghost starts = { Starts module_rows module_draft };

    ghost steps = { Steps module_rows module_draft };

    ghost faults = { piece_faults module_rows };

    ghost finishes = { Finishes module_rows module_draft module_value };

    fn start(alloc: Global, place: u64) -> ModuleDraft {
        ModuleDraft {
            uuid: Identifier::missing(place),
            binary_path: Text::new(alloc),
            preferred_addr: 0,
            rebase_delta: 0,
            file_format: 0,
            isa: 0,
            name: Text::new(alloc),
            symbols: Children::new(alloc),
            sections: Children::new(alloc),
            proxies: Children::new(alloc),
            aux: BTreeMap::new(alloc),
            entry: Identifier::missing(place),
            byte_order: 0,
        }
    }

    fn take(&mut self, alloc: Global, part: &Piece<'_>) -> Result<(), End<FormatFault>> {
        match part.number {
            1 => {
                self.uuid.take(part);
                Ok(())
            }
            2 => {
                take_text(alloc, &mut self.binary_path, part)?;
                Ok(())
            }
            3 => {
                take_unsigned(&mut self.preferred_addr, part);
                Ok(())
            }
            4 => {
                take_signed(&mut self.rebase_delta, part);
                Ok(())
            }
            5 => {
                take_signed32(&mut self.file_format, part);
                Ok(())
            }
            6 => {
                take_signed32(&mut self.isa, part);
                Ok(())
            }
            7 => {
                take_text(alloc, &mut self.name, part)?;
                Ok(())
            }
            9 => {
                take_child::<SymbolDraft>(alloc, &mut self.symbols, part)?;
                Ok(())
            }
            12 => {
                take_child::<SectionDraft>(alloc, &mut self.sections, part)?;
                Ok(())
            }
            16 => {
                take_child::<ProxyDraft>(alloc, &mut self.proxies, part)?;
                Ok(())
            }
            17 => {
                take_table(alloc, &mut self.aux, part)?;
                Ok(())
            }
            18 => {
                self.entry.take(part);
                Ok(())
            }
            19 => {
                take_signed32(&mut self.byte_order, part);
                Ok(())
            }
            _ => Ok(()),
        }
    }

    fn finish(self, alloc: Global) -> Result<(Module, Option<IdFault>), AllocError> {
        let ModuleDraft {
            uuid,
            binary_path,
            preferred_addr,
            rebase_delta,
            file_format,
            isa,
            name,
            symbols,
            sections,
            proxies,
            aux,
            entry,
            byte_order,
        } = self;
        let aux = finish_tables(alloc, aux)?;
        let worst = earlier(proxies.fault, entry.optional_fault());
        let worst = earlier(symbols.fault, earlier(sections.fault, worst));
        let fault = earlier(uuid.fault(), worst);
        let made = Module {
            uuid: uuid.id,
            binary_path,
            preferred_addr,
            rebase_delta,
            file_format,
            isa,
            name,
            symbols: symbols.items,
            sections: sections.items,
            proxies: proxies.items,
            aux,
            entry: entry.optional(),
            byte_order,
        };
        Ok((made, fault))
    }
}
